//! The laws of memory: functions that do nothing, and whose contracts are the laws.
ghost use Rattle.std.specs.Prelude.{◌≡◌, ℕ, List, None, Some, length, ◌∷◌, slice_get, slice_set, true};
ghost use Rattle.sp_base.specs.declared.names.Answer.{Answer};
ghost use Rattle.sp_base.specs.declared.need.Need.{Need};
ghost use Rattle.sp_copy.specs.declared.part.Part.{Part};
ghost use Rattle.sp_copy.specs.Parts.{in_range, root_part};
ghost use Rattle.sp_copy.specs.Faults.{Rises, fault_of};
ghost use Rattle.sp_copy.specs.Reading.{NamesBytes, gives, given, read_of};
ghost use Rattle.sp_copy.specs.Writing.{ChangesOnly, put_in, takes, written};
ghost use Rattle.sp_copy.specs.Delivering.{Piece, deliver, in_pieces};

/// Parts in rising order, none too low or too high, are a memory.
pub fn rising_parts_have_no_fault()
    ensures { (parts : List Part) → Rises parts → fault_of parts ≡ None }
{}

/// A need is read in whichever part gives it: of a memory's parts no two give the same.
pub fn read_from_any_part()
    ensures { (parts : List Part) (need : Need) (i : ℕ) (p : Part)
        → fault_of parts ≡ None → NamesBytes need
        → slice_get (root_part ∷ parts) i ≡ Some p → gives need p ≡ true
        → read_of parts need ≡ given need p }
{}

/// Bytes are written into whichever part takes them: of a memory's parts no two take the same.
pub fn written_into_any_part()
    ensures { (parts : List Part) (addr i b : ℕ) (bytes : List ℕ) (p : Part)
        → fault_of parts ≡ None
        → slice_get parts i ≡ Some p → takes addr (length (b ∷ bytes)) p ≡ true
        → written parts addr (b ∷ bytes) ≡ Some (slice_set parts i (put_in p addr (b ∷ bytes))) }
{}

/// A write changes bytes inside its range alone.
pub fn written_inside_the_range()
    ensures { (parts new : List Part) (addr : ℕ) (bytes : List ℕ)
        → written parts addr bytes ≡ Some new
        → ChangesOnly (in_range addr (length bytes)) parts new }
{}

/// A delivery changes bytes inside its pieces alone.
pub fn delivered_inside_the_pieces()
    ensures { (pieces : List Piece) (answer : Answer) (parts : List Part)
        → ChangesOnly (in_pieces pieces) parts (deliver pieces answer parts).1 }
{}
