// Numbers in the bytes of a host, the highest byte first.
ghost use Rattle.std.specs.Prelude.{◌≡◌, slice_index};
ghost use Rattle.sheet.specs.Layout.{word};

// The byte at a place; 0 past the end.
pub(crate) fn byte(bytes: &[u8], place: usize) -> u8
    ensures { result ≡ slice_index bytes.now place }
{
    bytes.get(place).copied().unwrap_or(0)
}

// The number of two bytes at a place; a byte past the end is read as 0.
pub fn number_at(bytes: &[u8], place: usize) -> u16
    ensures { result ≡ word 2 bytes.now place }
{
    let rest = bytes.get(place..).unwrap_or(&[]);
    u16::from_be_bytes([byte(rest, 0), byte(rest, 1)])
}
