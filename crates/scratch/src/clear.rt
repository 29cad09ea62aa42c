// Lent bytes set to 0. Cells are cleared by `Width::clear`.
ghost use Rattle.scratch.specs.Clear.{Cleared};

// Sets every byte to 0.
pub fn clear_bytes(bytes: &mut [u8])
    ensures { Cleared bytes.old bytes.new }
{
    bytes.fill(0);
}
