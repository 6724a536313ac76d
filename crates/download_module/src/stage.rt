ghost use Rattle.std.specs.Prelude.{◌≡◌, ◌∷◌, [], ℕ, IfOk, IfErr};
ghost use Rattle.download_module.specs.Stage.{Adds, Leads, goes_on, IsHashed};
ghost use Rattle.download_module.specs.declared.stage.Stage.TheVariants as stage;

use crate::down_fault::DownFault;
use crate::file::File;
use crate::receiving::Receiving;
use crate::values::{read_active, read_hash, read_length, read_name, read_piece};
use cbor_core::{Blob, NoMemory, Text};
use service_info::Pair;
use sha2::{Digest, Sha384};
use std::alloc::Global;

/// How far a file is received.
#[derive(Drop)]
pub enum Stage {
    /// No pair of the module came.
    Idle,
    /// The module is active.
    Active,
    /// The file's name came.
    Named(Text),
    /// Its name and its length came.
    Measured(Text, u64),
    /// Its hash came, and pieces may.
    Receiving(Receiving),
    /// It is refused. Further pairs are taken unread.
    Refused(DownFault),
}

impl Stage {
    /// The file that came whole, None where no pair came, or why it is refused.
    pub fn finish(self) -> Result<Option<File>, DownFault>
        ensures { (limit : ℕ) → IsHashed self → result ≡ goes_on limit self [] }
    {
        match self {
            Stage::Idle => Ok(None),
            Stage::Active => Err(DownFault::Order(1)),
            Stage::Named(_) => Err(DownFault::Order(2)),
            Stage::Measured(_, _) => Err(DownFault::Order(3)),
            Stage::Receiving(receiving) => receiving.finish(),
            Stage::Refused(fault) => Err(fault),
        }
    }

    /// The stage after a pair of the module. Where memory runs out the same stage is given back.
    pub fn after(self, alloc: Global, limit: u64, pair: &Pair) -> Result<Stage, Stage>
        ensures ok { IfOk result (λ stage. Leads limit self (pair.now ∷ []) stage) }
        ensures no_memory { IfErr result (λ stage. Leads limit self [] stage) }
    {
        match self {
            Stage::Idle => match read_active(alloc, pair) {
                Ok(Ok(())) => Ok(Stage::Active),
                Ok(Err(fault)) => Ok(Stage::Refused(fault)),
                Err(NoMemory) => Err(Stage::Idle),
            },
            Stage::Active => match read_name(alloc, pair) {
                Ok(Ok(name)) => Ok(Stage::Named(name)),
                Ok(Err(fault)) => Ok(Stage::Refused(fault)),
                Err(NoMemory) => Err(Stage::Active),
            },
            Stage::Named(name) => match read_length(alloc, limit, pair) {
                Ok(Ok(size)) => Ok(Stage::Measured(name, size)),
                Ok(Err(fault)) => Ok(Stage::Refused(fault)),
                Err(NoMemory) => Err(Stage::Named(name)),
            },
            Stage::Measured(name, size) => after_name(alloc, name, size, pair),
            Stage::Receiving(receiving) => after_piece(alloc, receiving, pair),
            Stage::Refused(fault) => Ok(Stage::Refused(fault)),
        }
    }
}

fn after_name(alloc: Global, name: Text, size: u64, pair: &Pair) -> Result<Stage, Stage>
    ensures ok { IfOk result (λ after. (limit : ℕ) → Leads limit (stage.Measured name size) (pair.now ∷ []) after) }
    ensures no_memory { IfErr result (λ after. (limit : ℕ) → Leads limit (stage.Measured name size) [] after) }
{
    match read_hash(alloc, pair) {
        Ok(Ok(hash)) => Ok(Stage::Receiving(Receiving {
            name,
            size,
            hash,
            bytes: Vec::new(alloc),
            hasher: Sha384::new(),
            place: 4,
        })),
        Ok(Err(fault)) => Ok(Stage::Refused(fault)),
        Err(NoMemory) => Err(Stage::Measured(name, size)),
    }
}

fn after_piece(alloc: Global, receiving: Receiving, pair: &Pair) -> Result<Stage, Stage>
    ensures ok { IfOk result (λ after. (limit : ℕ) → Leads limit (stage.Receiving receiving) (pair.now ∷ []) after) }
    ensures no_memory { IfErr result (λ after. (limit : ℕ) → Leads limit (stage.Receiving receiving) [] after) }
{
    match read_piece(alloc, receiving.place, pair) {
        Ok(Ok(piece)) => with_piece(receiving, &piece),
        Ok(Err(fault)) => Ok(Stage::Refused(fault)),
        Err(NoMemory) => Err(Stage::Receiving(receiving)),
    }
}

/// A piece more, where no more came than was announced.
fn with_piece(receiving: Receiving, piece: &Blob) -> Result<Stage, Stage>
    ensures ok { IfOk result (λ after. Adds receiving piece.now after) }
    ensures no_memory { IfErr result (λ after. (limit : ℕ) → Leads limit (stage.Receiving receiving) [] after) }
{
    let total = receiving.bytes.len() as u64 + piece.as_list().len() as u64;
    if receiving.size < total {
        return Ok(Stage::Refused(DownFault::TooLong(total)));
    }
    let Receiving {
        name,
        size,
        hash,
        mut bytes,
        mut hasher,
        place,
    } = receiving;
    if bytes.extend_from_slice(piece.as_list()).is_err() {
        return Err(Stage::Receiving(Receiving {
            name,
            size,
            hash,
            bytes,
            hasher,
            place,
        }));
    }
    hasher.update(piece.as_list());
    Ok(Stage::Receiving(Receiving {
        name,
        size,
        hash,
        bytes,
        hasher,
        place: place.saturating_add(1),
    }))
}
