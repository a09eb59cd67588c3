//! Verilog: the laws of modules. They are proved, and compute nothing.

ghost use Rattle.verilog_text.specs.Laws as law;

/// A cycle in which the reset is 1 leaves the first values.
pub fn a_reset_leaves_the_first_values()
    ensures { law.LeaveFirstValues }
{}

/// A text is that of one module at most.
pub fn texts_have_one_module()
    ensures { law.HaveOneModule }
{}
