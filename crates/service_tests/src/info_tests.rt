use crate::tools::{file, gives, pair, pairs};
use cbor_core::{Blob, Text};
use service_info::{
    Devmod, DevmodKey, InfoFault, InfoPairs, ListModule, Module, Packer, Pair, Unpacker,
    devmod_pairs, is_key, is_name, size_of,
};
use std::test::Fail;

static SIZES: [(Option<u64>, u64); 5] = [
    (None, 1300),
    (Some(0), 256),
    (Some(256), 256),
    (Some(1000), 1000),
    (Some(70000), 65535),
];

#[test]
fn sizes_that_count(rt: HostRuntime) -> Result<(), Fail> {
    for (stated, size) in &SIZES {
        assert_eq!(rt; size_of(*stated), *size);
    }
    Ok(())
}

/// Many pairs in messages of 256 bytes: how many there are in each.
fn counts(rt: &HostRuntime, list: Vec<Pair>, size: u64) -> Result<Vec<usize>, Fail> {
    let mut packer = Packer::new(list, size)?;
    let mut all = Vec::new(rt.alloc());
    for _message in 0..100 {
        let (more, list) = packer.next(rt.alloc())?;
        all.push(list.copy(rt.alloc())?.as_list().len())?;
        if !more {
            break;
        }
    }
    Ok(all)
}

#[test]
fn pairs_are_cut(rt: HostRuntime) -> Result<(), Fail> {
    // 1 + 1 + 4 + 3 + 1291 bytes
    let fits = Pair {
        key: Text::from_str(rt.alloc(), "m:x")?,
        value: Blob::new(file(&rt, 1291)?),
    };
    let mut one = Vec::new(rt.alloc());
    one.push(fits)?;
    assert_eq!(rt; counts(&rt, one, 1300)?.as_slice(), [1].as_slice());
    let wide = Pair {
        key: Text::from_str(rt.alloc(), "m:x")?,
        value: Blob::new(file(&rt, 1292)?),
    };
    let mut two = Vec::new(rt.alloc());
    two.push(pair(&rt, "m:x", "f5")?)?;
    two.push(wide)?;
    let refused = Packer::new(two, 1300);
    assert!(rt; matches!(refused, Err(InfoFault::TooWide(1))));
    assert_eq!(rt;
        counts(&rt, Vec::new(rt.alloc()), 256)?.as_slice(),
        [0].as_slice()
    );
    // a pair of 1 + 4 + 2 bytes: 23 have a head of one byte, 36 one of two (2 + 36 * 7 = 254)
    let mut many = Vec::new(rt.alloc());
    for _pair in 0..80 {
        many.push(pair(&rt, "m:x", "f5")?)?;
    }
    assert_eq!(rt; counts(&rt, many, 256)?.as_slice(), [36, 36, 8].as_slice());
    Ok(())
}

static KEYS: [(&str, bool); 8] = [
    ("devmod:active", true),
    ("Dev_mod.2:a-b.c_9", true),
    ("devmod", false),
    ("devmod:", false),
    (":active", false),
    ("devmod:Active", false),
    ("devmod:a:b", false),
    ("dev mod:active", false),
];

#[test]
fn keys_and_turns(rt: HostRuntime) -> Result<(), Fail> {
    let mut unpacker = Unpacker;
    for (key, right) in &KEYS {
        assert_eq!(rt; is_key(key), *right);
        let list = InfoPairs::new(pairs(&rt, &[(key, "f5")])?);
        let taken = unpacker.take(rt.alloc(), false, list.as_list());
        assert_eq!(rt; matches!(taken, Err(InfoFault::BadKey)), !*right);
        let taken = unpacker.take(rt.alloc(), true, list.as_list());
        assert!(rt; matches!(taken, Err(InfoFault::NotYourTurn)), "{key}");
    }
    assert!(rt; unpacker.take(rt.alloc(), true, &[]).is_ok());
    assert!(rt; is_name("a.txt"));
    assert!(rt; !is_name("a b"));
    Ok(())
}

/// A devmod of rows, and the fault that it has, if any.
struct Said {
    rows: &'static [(&'static str, &'static str)],
    fault: Option<InfoFault>,
}

static FRONT: [(&str, &str); 6] = [
    ("devmod:active", "f5"),
    ("devmod:os", "656c696e7578"),
    ("devmod:arch", "636c6162"),
    ("devmod:version", "6131"),
    ("devmod:device", "6178"),
    ("devmod:bin", "636c6162"),
];

static REST: [Said; 8] = [
    Said {
        rows: &[
            ("devmod:nummodules", "01"),
            ("devmod:modules", "830001666465766d6f64"),
        ],
        fault: None,
    },
    Said {
        rows: &[
            ("devmod:nummodules", "02"),
            ("devmod:modules", "830001666465766d6f64"),
        ],
        fault: Some(InfoFault::BadModules(1)),
    },
    Said {
        rows: &[
            ("devmod:nummodules", "00"),
            ("devmod:modules", "830001666465766d6f64"),
        ],
        fault: Some(InfoFault::BadModules(0)),
    },
    // names in an array, in one of indefinite length, and in a second list; an optional key of another type
    Said {
        rows: &[
            ("devmod:nummodules", "03"),
            ("devmod:modules", "9f00028261616162ff"),
            ("devmod:sn", "01"),
            ("devmod:os", "6178"),
            ("devmod:modules", "8302016163"),
        ],
        fault: None,
    },
    Said {
        rows: &[
            ("devmod:nummodules", "03"),
            ("devmod:modules", "8302016163"),
            ("devmod:modules", "8300028261616162"),
        ],
        fault: Some(InfoFault::BadModules(0)),
    },
    // the second list has a number that is not that of its names, and the first is out of place
    Said {
        rows: &[
            ("devmod:nummodules", "03"),
            ("devmod:modules", "8302016163"),
            ("devmod:modules", "8300018261616162"),
        ],
        fault: Some(InfoFault::MissingDevmod(DevmodKey::Modules)),
    },
    // the first of two values is a text
    Said {
        rows: &[
            ("devmod:nummodules", "6131"),
            ("devmod:nummodules", "01"),
            ("devmod:modules", "830001666465766d6f64"),
        ],
        fault: Some(InfoFault::MissingDevmod(DevmodKey::NumModules)),
    },
    Said {
        rows: &[("devmod:nummodules", "01")],
        fault: Some(InfoFault::MissingDevmod(DevmodKey::Modules)),
    },
];

static NEEDED: [DevmodKey; 6] = [
    DevmodKey::Active,
    DevmodKey::Os,
    DevmodKey::Arch,
    DevmodKey::Version,
    DevmodKey::Device,
    DevmodKey::Bin,
];

fn fault_of(read: Result<Devmod, InfoFault>) -> Option<InfoFault> {
    match read {
        Ok(_) => None,
        Err(fault) => Some(fault),
    }
}

#[test]
fn devmods_are_read(rt: HostRuntime) -> Result<(), Fail> {
    for said in &REST {
        let mut all = pairs(&rt, &FRONT)?;
        all.append(&mut pairs(&rt, said.rows)?)?;
        let fault = fault_of(Devmod::read(rt.alloc(), all.as_slice()));
        assert!(rt; fault == said.fault);
    }
    for (i, key) in NEEDED.iter().enumerate() {
        let mut all = Vec::new(rt.alloc());
        for (j, (key, value)) in FRONT.iter().enumerate() {
            if j != i {
                all.push(pair(&rt, key, value)?)?;
            }
        }
        let fault = fault_of(Devmod::read(rt.alloc(), all.as_slice()));
        assert!(rt; fault == Some(InfoFault::MissingDevmod(*key)));
    }
    Ok(())
}

#[test]
fn a_devmod_is_given(rt: HostRuntime) -> Result<(), Fail> {
    let info = Text::from_str(rt.alloc(), "X")?;
    let mut modules = Vec::new(rt.alloc());
    modules.push(Text::from_str(rt.alloc(), "devmod")?)?;
    let all = devmod_pairs(rt.alloc(), &info, modules.as_slice())?;
    let last = hex::encode(rt.alloc(), all[7].value.as_list())?;
    assert_eq!(rt; last.as_str(), "830001666465766d6f64");
    let devmod = Devmod::read(rt.alloc(), all.as_slice())?;
    assert_eq!(rt; devmod.os.as_list(), "linux");
    assert_eq!(rt; devmod.device.as_list(), "X");
    let names = devmod.modules.copy(rt.alloc())?;
    assert_eq!(rt; names.as_list().len(), 1);
    Ok(())
}

#[test]
fn a_list_is_a_module(rt: HostRuntime) -> Result<(), Fail> {
    let mut module = ListModule::new(pairs(&rt, &FRONT)?);
    assert!(rt; gives(&rt, &mut module, "devmod:active")?);
    module.take(rt.alloc(), &pair(&rt, "m:x", "f5")?)?;
    module.take(rt.alloc(), &pair(&rt, "m:y", "f5")?)?;
    module.take_back();
    assert_eq!(rt; module.taken().len(), 1);
    for (key, _value) in FRONT.iter().skip(1) {
        assert!(rt; gives(&rt, &mut module, key)?);
    }
    assert!(rt; !gives(&rt, &mut module, "m:x")?);
    Ok(())
}
