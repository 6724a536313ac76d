/// What `--help` writes.
pub const HELP: &str = "\
usage: fdo step rendezvous
       fdo voucher show
       fdo voucher check
       fdo voucher extend KEY PRIVATE
       fdo --help
       fdo --version

FIDO Device Onboard 1.1. A command reads standard input to its end and writes
standard output.

Commands
  step rendezvous   the rendezvous server, message by message
  voucher show      what an ownership voucher says; its bytes are the input
  voucher check     whether its chain of owners holds, with the signatures of
                    the laboratory suite
  voucher extend    a voucher with one more entry, for the next owner; it
                    writes bytes, so send its output to a file

The laboratory suite is for trials: whoever knows a public key can sign.

Words of voucher extend
  KEY               the next owner's public key, the hex of its CBOR
  PRIVATE           the last owner's private key, in hex; a laboratory key has 1
                    to 32 bytes. Others on this machine can see it, so use no
                    key of worth

Input of step: one line for each message
  KIND TOKEN BODY   and a line feed, with one space between the words
  KIND              the message type, a decimal number from 0 to 255
  TOKEN             - where the message has no session token, else the token
                    without `Bearer `: 1 to 1,017 visible ASCII characters
  BODY              the message body in lower-case hex, of at least one byte

Output of step: one line for each message
  KIND TOKEN BODY   the answer
  ended             where there is none

Output of voucher show: version, GUID, DeviceInfo, the manufacturer's key, HMAC,
certificates, rendezvous instructions and entries, a line each

Output of voucher check
  ok N owner HASH   the number of entries, and the SHA-256 of the last owner's
                    key

Output of voucher extend: the longer voucher's bytes, and nothing else

Exit status, and the last line that is written for it
   0  done: the input was read to its end
   2  the words are no command, KEY is no public key, or PRIVATE is no private
      key of the suite: `fault words`
   3  the input is wrong, and nothing is answered: `fault input N`. N is the
      offset of the first wrong line, or of the wrong part of a voucher
   4  reading the input failed: `fault read`
   5  writing the output failed
   7  out of memory
   8  the input has more than 16,777,216 bytes: `fault limit`
   9  the voucher is refused: `refused CAUSE`, and the number of the entry where
      it has one. CAUSE is badcerthash, badprevhash, badinfohash, noalgorithm,
      badsignature, toolong or failed
  11  the source of random draws failed: `fault random`, the clock: `fault
      clock`, or the suite as it took the private key: `fault signer`

docs/COMMANDS.md and the manual page fdo(1) say more.
";

/// What `--version` writes.
pub const VERSION: &str = "fdo 0.1.0\n";
