ghost use Rattle.std.specs.Prelude.{◌≡◌};
ghost use Rattle.fdo_rules.specs.Channel.{iv_of, side_byte};
ghost use Rattle.to2_channel.specs.Side.{side_of};

/// An end of a TO2 session.
#[derive(Clone, Copy, Debug, PartialEq, Eq)]
pub enum Side {
    Owner,
    Device,
}

impl Side {
    /// The first byte of its initialization vectors.
    fn byte(self) -> u8
        ensures { result ≡ side_byte (side_of self) }
    {
        match self {
            Side::Owner => 0,
            Side::Device => 1,
        }
    }

    /// Its initialization vector of a number: its byte, three zeros, and the number in 8 bytes.
    pub(crate) fn iv(self, number: u64) -> [u8; 12]
        ensures { result ≡ iv_of (side_of self) number }
    {
        let mut iv = [self.byte(), 0, 0, 0, 0, 0, 0, 0, 0, 0, 0, 0];
        let (_, back) = iv.split_at_mut(4);
        back.copy_from_slice(&number.to_be_bytes());
        iv
    }
}
