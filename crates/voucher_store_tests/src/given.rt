//! An image for the tests, and what is read of it. Here a function holds one value with parts on the heap at most, and answers
//! by a match, which keeps its proof short.
use cbor_core::NoMemory;
use voucher_store::{ImageFault, VoucherMap, read_image};

/// The bytes of a file of version 2 with a record of each kind. Its parts begin at 0, 13, 208, 395, 599, 623, 827 and 1,225,
/// and it has 1,226 bytes. It stands for two entries, one that was sent, and a base with a candidate, which take 749 bytes as
/// a snapshot of version 1.
static PARTS: [&str; 8] = [
    // gate, generation and length of the snapshot
    "010000000000000001000000c3",
    // the snapshot: one voucher
    "83028184000658b2851865586486186550a559afa3a3691170d91bc3509f7b8e8980636c61628318c80051010101010101010101010101010101010182382a5830594d51f9aba92fe12856b5272b8ae3770276fa3366252bedfaab3bb83f4b44a26edb87ee49ae65c4d40a41d9eefe7d7f820658308a2f513570aefb2070204b57433527ed58a86612faa928e9062e99df8739caebaa68da9bf1144a24f13c9fc1df96e38d815246444f2d4c41422d434552548318c800410a80f6676a6f75726e616c",
    // a second voucher
    "01000000b6820058b28518655864861865509c9e723aa5c13e415480e3d286faa3b480636c61628318c80051010101010101010101010101010101010182382a5830594d51f9aba92fe12856b5272b8ae3770276fa3366252bedfaab3bb83f4b44a26edb87ee49ae65c4d40a41d9eefe7d7f820658305e718dbb5745316ca8d146c063a58e4a5985d9bf0df6957ae17275e5cbaed52e8d5561043cc855c18ec55ba8e111bfc3815246444f2d4c41422d434552548318c800410a80",
    // its candidate
    "01000000c78301509c9e723aa5c13e415480e3d286faa3b458b2851865586486186550853011e92e93f910c333b26623ac419f80636c61628318c80051010101010101010101010101010101010182382a5830594d51f9aba92fe12856b5272b8ae3770276fa3366252bedfaab3bb83f4b44a26edb87ee49ae65c4d40a41d9eefe7d7f82065830d13a899e9be2d1b8f870d559a168efed64f4cee9f9032cd562de7a8e4055617db48f7f36da99152dab80543a5f3f5884815246444f2d4c41422d434552548318c800410a80",
    // which takes its place
    "01000000138202509c9e723aa5c13e415480e3d286faa3b4",
    // another candidate
    "01000000c7830150853011e92e93f910c333b26623ac419f58b28518655864861865509a86f9dc95f3b6c3f81ee03157e8c84f80636c61628318c80051010101010101010101010101010101010182382a5830594d51f9aba92fe12856b5272b8ae3770276fa3366252bedfaab3bb83f4b44a26edb87ee49ae65c4d40a41d9eefe7d7f820658303bf047fcedab1beb88c144482803d7544a6405694cd2b9e3851bed8686b9d280c3b38571df69e39f0c502cdc40e6b92a815246444f2d4c41422d434552548318c800410a80",
    // the first voucher was sent
    "0100000189830350a559afa3a3691170d91bc3509f7b8e89590173851865586486186550a559afa3a3691170d91bc3509f7b8e8980636c61628318c80051010101010101010101010101010101010182382a5830594d51f9aba92fe12856b5272b8ae3770276fa3366252bedfaab3bb83f4b44a26edb87ee49ae65c4d40a41d9eefe7d7f820658308a2f513570aefb2070204b57433527ed58a86612faa928e9062e99df8739caebaa68da9bf1144a24f13c9fc1df96e38d815246444f2d4c41422d434552548318c800410a81d28447a1013a00010000a058928482382a58306db3b08ff37d2b118d4753cf7468a2e3a40c718bfc6fb060bc9a849153d05693c16fb80cf0bcb556b87206c30a0bc18d82382a583079488bd00de681fa414488bfcebb8f9918af51ffc856963c423fbae8cf0cc69fe22623bc2a1e05c57702b3691fe68da2f68318c8005820020202020202020202020202020202020202020202020202020202020202020258201fe1b95d868dcfe2ac6445ffed504f6206453aeeccd7ff76010977de26720cbf",
    // the next gate
    "00",
];

/// The bytes of the file, of which some are others, cut after so many.
pub(crate) fn file(
    rt: &HostRuntime,
    changes: &[(usize, u8)],
    length: usize,
) -> Result<Vec<u8>, NoMemory> {
    match spelling(rt) {
        Ok(text) => match hex::decode(rt.alloc(), text.as_str()) {
            Ok(bytes) => Ok(with_changes(bytes, changes, length)),
            Err(_) => Err(NoMemory),
        },
        Err(_) => Err(NoMemory),
    }
}

fn spelling(rt: &HostRuntime) -> Result<String, NoMemory> {
    let mut text = String::new(rt.alloc());
    for part in &PARTS {
        text.push_str(part)?;
    }
    Ok(text)
}

fn with_changes(bytes: Vec<u8>, changes: &[(usize, u8)], length: usize) -> Vec<u8> {
    let mut bytes = bytes;
    bytes.truncate(length);
    for (place, byte) in changes {
        if let Some(there) = bytes.get_mut(*place) {
            *there = *byte;
        }
    }
    bytes
}

/// Whether bytes stand for so many entries, or have their first fault there.
pub(crate) fn reads(rt: &HostRuntime, limit: u32, image: &[u8], told: Result<usize, u64>) -> bool {
    match read_image(rt.alloc(), limit, image) {
        Ok(map) => told == Ok(count(&map)),
        Err(ImageFault::Foreign(place)) => told == Err(place),
        Err(ImageFault::NoMemory) => false,
    }
}

fn count(map: &VoucherMap) -> usize {
    map.as_list().len()
}
