// What a lent buffer holds once it is filled, or once bytes are laid over it: definitions (specs/) and laws (proofs/) for every crate that
// does so; and the one function that lays bytes.
#![tactic(auto)]

ghost use Rattle.std.specs.Prelude.{◌+◌, ◌≤◌, length};
ghost use Rattle.buffers.specs.Laid.{Laid};

// Lays bytes over a buffer, from a place on; answers the place that follows.
pub fn lay(buffer: &mut [u8], at: usize, bytes: &[u8]) -> usize
    requires { at + length bytes.now ≤ length buffer.old }
    ensures { Laid at bytes.now buffer.old buffer.new result }
{
    let next = at + bytes.len();
    buffer[at..next].copy_from_slice(bytes);
    next
}
