// Opens and closes a gap of one at the start of a part of a slice. The rest of the part moves as one block.
ghost use Rattle.std.specs.Prelude.{◌≡◌, ◌-◌, ◌<◌, ◌∷◌, ◌++◌, length, take, drop};

// Moves all but the last of `part` up by one, and puts `x` in front. The last goes.
pub(crate) fn shift_up<T: Copy>(part: &mut [T], x: T)
    requires { 0 < length part.old }
    ensures { part.new ≡ x ∷ take (length part.old - 1) part.old }
{
    let last = part.len() - 1;
    part.copy_within(0..last, 1);
    part[0] = x;
}

// Moves all but the first of `part` down by one. The first goes, and the last stands twice.
pub(crate) fn shift_down<T: Copy>(part: &mut [T])
    requires { 0 < length part.old }
    ensures { part.new ≡ drop 1 part.old ++ drop (length part.old - 1) part.old }
{
    let len = part.len();
    part.copy_within(1..len, 0);
}
