// The kernels' plain definitions, byte by byte and number by number.
ghost use Rattle.std.specs.Prelude.{◌≡◌, ◌==◌, count_by, position};
ghost use Rattle.lanes_dm.specs.ByteSet.{has_byte};

use lanes_dm::ByteClass;

#[inline(never)]
pub fn first_of(bytes: &[u8], class: &ByteClass) -> Option<usize>
    ensures { result ≡ position (has_byte class.now) bytes.now }
{
    bytes.iter().position(|b| class.has(*b))
}

#[inline(never)]
pub fn count_byte(bytes: &[u8], b: u8) -> usize
    ensures { result ≡ count_by (λ x. x == b) bytes.now }
{
    bytes.iter().filter(|x| **x == b).count()
}

#[inline(never)]
pub fn mask_eq(column: &[u32], id: u32, out: &mut [u8]) {
    for (flag, x) in out.iter_mut().zip(column) {
        *flag = u8::from(*x == id);
    }
}
