ghost use Rattle.std.specs.Prelude.{◌≡◌, ◌&&◌, length, position};
ghost use Rattle.std.specs.List.{list_all};
ghost use Rattle.service_info.specs.Key.{is_colon, is_key as is_a_key, is_message_byte, is_module_byte, is_name as is_a_name, is_within};

/// Whether a key is a module's name, a colon and a message's name, where a message's has no capitals.
pub fn is_key(key: &str) -> bool
    ensures { result ≡ is_a_key key.now }
{
    let key = key.as_bytes();
    match find_colon(key) {
        Some(at) => {
            let (module_name, rest) = key.split_at(at);
            are_names(module_name, rest.split_at(1).1)
        }
        None => false,
    }
}

fn find_colon(key: &[u8]) -> Option<usize>
    ensures { result ≡ position is_colon key.now }
{
    key.iter().position(|byte| *byte == b':')
}

fn are_names(module_name: &[u8], message_name: &[u8]) -> bool
    ensures { result ≡ (is_a_name is_module_byte module_name.now && is_a_name is_message_byte message_name.now) }
{
    has_a_names_length(module_name)
        && has_module_bytes(module_name)
        && has_a_names_length(message_name)
        && has_message_bytes(message_name)
}

/// Whether a text can be the name of a module: 1 to 64 bytes of `a` to `z`, `A` to `Z`, `0` to `9`, `.`, `-` and `_`.
pub fn is_name(name: &str) -> bool
    ensures { result ≡ is_a_name is_module_byte name.now }
{
    has_a_names_length(name.as_bytes()) && has_module_bytes(name.as_bytes())
}

fn has_a_names_length(name: &[u8]) -> bool
    ensures { result ≡ is_within 1 64 (length name.now) }
{
    1 <= name.len() && name.len() <= 64
}

fn has_module_bytes(name: &[u8]) -> bool
    ensures { result ≡ list_all is_module_byte name.now }
{
    name.iter().all(|byte| is_in_module(*byte))
}

fn has_message_bytes(name: &[u8]) -> bool
    ensures { result ≡ list_all is_message_byte name.now }
{
    name.iter().all(|byte| is_in_message(*byte))
}

fn is_in_module(byte: u8) -> bool
    ensures { result ≡ is_module_byte byte }
{
    is_in_message(byte) || byte.is_ascii_uppercase()
}

fn is_in_message(byte: u8) -> bool
    ensures { result ≡ is_message_byte byte }
{
    byte.is_ascii_lowercase()
        || byte.is_ascii_digit()
        || byte == b'.'
        || byte == b'-'
        || byte == b'_'
}
