// What lines say, in rows. A caller learns them at no cost.
ghost use Rattle.lx_act_index.specs.Rows.{WorkedLines};

/// Worked rows of lines and loans.
pub fn worked_lines()
    ensures { WorkedLines }
{}
