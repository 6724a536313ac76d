ghost use Rattle.std.specs.Prelude.{◌≡◌, [], ◌∷◌, ◌++◌, List};
ghost use Rattle.service_info.specs.declared.pair.Pair.{Pair};

use crate::receiver::Receiver;
use cbor_core::NoMemory;
use service_info::{ListModule, Module, Pair};
use std::alloc::Global;

/// The one module of a device: a list, whose pairs it gives, and a receiver of a file. Both take each pair.
#[derive(Drop)]
pub struct DeviceModule {
    pub list: ListModule,
    pub receiver: Receiver,
}

impl Module for DeviceModule {
    ghost use Rattle.service_info.specs.ListModule.{pairs_left};
    ghost use Rattle.download_module.specs.DeviceModule.{TookBoth};

    ghost Took = { λ m pairs. TookBoth m pairs };

    ghost left = { λ m. pairs_left m.list };

    fn take(&mut self, alloc: Global, pair: &Pair) -> Result<(), NoMemory> {
        self.list.take(alloc, pair)?;
        match self.receiver.take(alloc, pair) {
            Ok(()) => Ok(()),
            Err(NoMemory) => {
                self.list.take_back();
                Err(NoMemory)
            }
        }
    }

    fn next(&mut self, alloc: Global) -> Result<Option<Pair>, NoMemory> {
        self.list.next(alloc)
    }
}
