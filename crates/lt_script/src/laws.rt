//! Laws of the text of a script.
ghost use Rattle.std.specs.Prelude.{◌≡◌};
ghost use Rattle.lt_script.specs.declared.limits.TheConstants.{SCRIPT_LIMIT, NAME_LIMIT, TIME_LIMIT, FILL_LIMIT, POUR_LIMIT, TAKE_LIMIT, COUNT_LIMIT, FAULT_LIMIT};
ghost use Rattle.lt_script.specs.Laws.{OneScript, PrintedIsRead};

/// A text spells one script.
pub fn a_text_spells_one_script()
    ensures { OneScript }
{}

/// What is printed of a script that a text spells is a text that spells it, and no text that does is shorter.
pub fn what_is_printed_is_read()
    ensures { PrintedIsRead }
{}

/// The numbers of the format.
pub fn limits()
    ensures script { SCRIPT_LIMIT ≡ 16777216 }
    ensures name { NAME_LIMIT ≡ 1000000 }
    ensures time { TIME_LIMIT ≡ 253402300799 }
    ensures fill { FILL_LIMIT ≡ 16777216 }
    ensures pour { POUR_LIMIT ≡ 8388608 }
    ensures take { TAKE_LIMIT ≡ 65536 }
    ensures count { COUNT_LIMIT ≡ 4096 }
    ensures fault { FAULT_LIMIT ≡ 1000000 }
{}
