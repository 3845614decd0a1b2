//! Bytes come in any cut. The function does nothing: its contract is the law.
ghost use Rattle.vm_feeding.specs.Cuts.{CutsAreOne, OneIsCuts};

/// Where memory is there for the bytes, two cuts of them lead to what they lead to as a whole, and to nothing else.
pub fn bytes_come_in_any_cut()
    ensures one { CutsAreOne }
    ensures cuts { OneIsCuts }
{}
