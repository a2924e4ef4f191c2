//! Laws of the typing, whatever types.

ghost use Rattle.clight_laws.specs.Laws.{MeaningsAreWellMade, ReadMeaningsAreWellMade, MeaningsAreThere, MeaningsAreUnique};

/// The program that a file means is made well: all that its functions name is there, calls have as many
/// arguments as their types have parameters, each parameter is taken or kept once, jumps stand where
/// something takes them, and the nodes of a function bound its weight, its height, its temporaries and
/// its room. So it is of each tree that the grammar gives, and of the bytes of each file that is read.
pub const fn meanings_are_well_made()
    ensures tree { MeaningsAreWellMade }
    ensures bytes { ReadMeaningsAreWellMade }
{}

/// A file without faults, within the counts, means one program.
pub const fn files_have_one_meaning()
    ensures some { MeaningsAreThere }
    ensures alone { MeaningsAreUnique }
{}
