// Copies octets into a buffer, and out of one.
ghost use Rattle.std.specs.Prelude.{◌≡◌, ◌+◌, ◌≤◌, length};
ghost use Rattle.tokens.specs.Limits.{region, placed};

// Writes the octets of `part` over those of `buf` from `at`.
pub fn place(buf: &mut [u8], at: usize, part: &[u8])
    requires { at + length part.now ≤ length buf.old }
    ensures { buf.new ≡ placed at part.now buf.old }
{
    buf[at..at + part.len()].copy_from_slice(part);
}

// The N octets of `buf` from `at`. `first_chunk` of std would ask for what to do where there are fewer, which can't be.
pub fn array_at<const N: usize>(buf: &[u8], at: usize) -> [u8; N]
    requires { at + N ≤ length buf.now }
    ensures { result ≡ region at N buf.now }
{
    let mut octets = [0; N];
    octets.copy_from_slice(&buf[at..at + N]);
    octets
}
