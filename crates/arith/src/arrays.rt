// Arrays that hold one value.
ghost use Rattle.std.specs.Prelude.{◌≡◌, replicate};

// N places that hold x. Made by a call, an array is one value in the caller's proof. No body of this
// type answers anything else.
pub fn filled<T: Copy, const N: usize>(x: T) -> [T; N]
    ensures { result ≡ replicate N x }
{
    [x; N]
}
