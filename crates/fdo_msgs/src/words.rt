ghost use Rattle.std.specs.Prelude.{◌≡◌, ◌∷◌, ◌++◌, ◌==◌, position, IfSome, IfNone};
ghost use Rattle.fdo_msgs.specs.Words.{Lacks};

/// The bytes before the first `mark`, and those after it, where there is one.
pub fn cut(bytes: &[u8], mark: u8) -> Option<(&[u8], &[u8])>
    ensures some { IfSome result (λ parts. (bytes.now ≡ parts.0.now ++ mark ∷ parts.1.now) × Lacks mark parts.0.now) }
    ensures none { IfNone result (Lacks mark bytes.now) }
{
    match find(bytes, mark) {
        Some(at) => {
            let (front, rest) = bytes.split_at(at);
            Some((front, rest.split_at(1).1))
        }
        None => None,
    }
}

fn find(bytes: &[u8], mark: u8) -> Option<usize>
    ensures { result ≡ position (λ byte. byte == mark) bytes.now }
{
    bytes.iter().position(|byte| *byte == mark)
}
