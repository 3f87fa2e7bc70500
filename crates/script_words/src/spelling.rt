ghost use Rattle.std.specs.Prelude.{◌≡◌, ◌<◌, ◌++◌, OnOk};
ghost use Rattle.std.specs.Fmt.{decimal};
ghost use Rattle.std.specs.List.{flat_map};
ghost use Rattle.script_words.specs.Spelling.{hex_char, quoted, quoted_byte, signed};

use itoa::Buffer;
use sp_base::{NoMemory, Octets};

/// Appends a number in decimal.
pub fn put_number(out: &mut Octets, n: u64) -> Result<(), NoMemory>
    ensures { OnOk result (out.new ≡ out.old ++ decimal n) }
{
    let mut buffer = Buffer::new();
    out.extend(buffer.format(n).as_bytes())
}

/// Appends a word that stands for a number in two's complement, in decimal.
#[tactic(auto, unfolding(crate::specs::Spelling::signed))]
pub fn put_signed(out: &mut Octets, word: u64) -> Result<(), NoMemory>
    ensures { OnOk result (out.new ≡ out.old ++ signed word) }
{
    if word < 0x8000_0000_0000_0000 {
        return put_number(out, word);
    }
    out.push(b'-')?;
    put_number(out, u64::MAX - word + 1)
}

/// A hexadecimal digit, in lower case.
fn hex_char(d: u8) -> u8
    requires { d < 16 }
    ensures { result ≡ hex_char d }
{
    if d < 10 { 48 + d } else { 87 + d }
}

/// Appends a byte as it stands between quotes.
#[tactic(auto, unfolding(crate::specs::Spelling::quoted_byte))]
fn put_byte(out: &mut Octets, b: u8) -> Result<(), NoMemory>
    ensures { OnOk result (out.new ≡ out.old ++ quoted_byte b) }
{
    if b == b'"' {
        return out.extend(b"\\\"");
    }
    if b == b'\\' {
        return out.extend(b"\\\\");
    }
    if b == b'\n' {
        return out.extend(b"\\n");
    }
    if b >= 32 && b <= 126 {
        return out.push(b);
    }
    out.extend(&[b'\\', b'x', hex_char(b / 16), hex_char(b % 16)])
}

/// Appends bytes as they stand between quotes.
fn put_bytes(out: &mut Octets, bytes: &[u8]) -> Result<(), NoMemory>
    ensures { OnOk result (out.new ≡ out.old ++ flat_map quoted_byte bytes.now) }
{
    for b in bytes {
        put_byte(out, *b)?;
    }
    Ok(())
}

/// Appends bytes in double quotes.
pub fn put_quoted(out: &mut Octets, bytes: &[u8]) -> Result<(), NoMemory>
    ensures { OnOk result (out.new ≡ out.old ++ quoted bytes.now) }
{
    out.push(b'"')?;
    put_bytes(out, bytes)?;
    out.push(b'"')
}
