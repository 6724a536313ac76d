ghost use Rattle.std.specs.Prelude.{◌≡◌, ◌≢◌, [], ◌∷◌, length, IfSome, IfNone};
ghost use Rattle.fdo_program.specs.OwnWord.{AreOwn, own_text};
ghost use Rattle.fdo_ports.specs.Count.{Counts};
ghost use Rattle.fdo_ports.specs.Told.{WritesAll};

use crate::help::{HELP, VERSION};
use cbor_core::Text;
use fdo_ports::{Failed, Sink, write_all};

/// A word that the program answers itself where it stands alone.
#[derive(Clone, Copy, Debug, PartialEq, Eq)]
pub enum OwnWord {
    /// `--help`
    Help,
    /// `--version`
    Version,
}

impl OwnWord {
    /// The word that the program's words are, or None where they go to the commands.
    pub fn of(words: &[Text]) -> Option<OwnWord>
        ensures { AreOwn words.now result }
    {
        match sole(words) {
            Some("--help") => Some(OwnWord::Help),
            Some("--version") => Some(OwnWord::Version),
            _ => None,
        }
    }

    /// Writes its text, or a part of it from its front where the output fails.
    pub fn answer<O: Sink>(self, output: &mut O) -> Result<(), Failed>
        ensures bytes { WritesAll (O.Channel.written output.old) (O.Channel.written output.new) (own_text self) result }
        ensures faults { Counts (O.Channel.write_faults output.old) (O.Channel.write_faults output.new) result }
        ensures left { O.Channel.left output.new ≡ O.Channel.left output.old }
        ensures read_faults { O.Channel.read_faults output.new ≡ O.Channel.read_faults output.old }
    {
        write_all(output, self.text().as_bytes())
    }

    fn text(self) -> &'static str
        ensures { result.now ≡ own_text self }
    {
        match self {
            OwnWord::Help => HELP,
            OwnWord::Version => VERSION,
        }
    }
}

/// The word that stands alone.
#[tactic(auto, using(crate::proofs::Sole::sole_item))]
fn sole(words: &[Text]) -> Option<&str>
    ensures some { IfSome result (λ word. words.now ≡ word.now ∷ []) }
    ensures none { IfNone result (length words.now ≢ 1) }
{
    match words {
        [word] => Some(word.as_list()),
        _ => None,
    }
}
