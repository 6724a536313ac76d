ghost use Rattle.std.specs.Prelude.{◌≡◌, option_map};
ghost use Rattle.cbor_core.specs.Shapes.{three_of};
ghost use Rattle.credential_store.specs.Parts.{seven_spots};

use cbor_core::Part;

/// The parts of an array of seven.
pub(crate) type Seven<'a> = (
    Part<'a>,
    Part<'a>,
    Part<'a>,
    Part<'a>,
    Part<'a>,
    Part<'a>,
    Part<'a>,
);

/// The parts of an array of seven.
pub(crate) fn seven<'a>(part: &Part<'a>) -> Option<Seven<'a>>
    ensures { option_map (λ p. (p.0.spot, p.1.spot, p.2.spot, p.3.spot, p.4.spot, p.5.spot, p.6.spot)) result ≡ seven_spots part.now.spot }
{
    if !part.is_array() {
        return None;
    }
    let first = part.inside()?;
    let second = first.after()?;
    let third = second.after()?;
    let fourth = third.after()?;
    let (fifth, sixth, seventh) = last_three(&fourth)?;
    Some((first, second, third, fourth, fifth, sixth, seventh))
}

/// The three parts behind one, where these are the last.
fn last_three<'a>(part: &Part<'a>) -> Option<(Part<'a>, Part<'a>, Part<'a>)>
    ensures { option_map (λ p. (p.0.spot, p.1.spot, p.2.spot)) result ≡ three_of part.now.later }
{
    let first = part.after()?;
    let second = first.after()?;
    let third = second.after()?;
    match third.after() {
        None => Some((first, second, third)),
        Some(_) => None,
    }
}
