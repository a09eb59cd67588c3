//! Values: laws of the operators.

// Each law of the operators is the contract of a function that does nothing. Proofs cite the lemmas of
// `proofs/OperatorLaws.antt`, which say the same.
ghost use Rattle.kw_bits.specs.Laws as law;
ghost use Rattle.kw_bits.specs.Operators as op;

/// One operand makes a bit vector of its width.
pub fn width_is_kept()
    ensures not { law.KeepsWidth op.not }
    ensures neg { law.KeepsWidth op.neg }
{}

/// Two operands of one width make a bit vector of that width.
pub fn common_width_is_kept()
    ensures and { law.KeepsCommonWidth op.and }
    ensures or { law.KeepsCommonWidth op.or }
    ensures xor { law.KeepsCommonWidth op.xor }
    ensures add { law.KeepsCommonWidth op.add }
    ensures sub { law.KeepsCommonWidth op.sub }
    ensures mul { law.KeepsCommonWidth op.mul }
    ensures sll { law.KeepsCommonWidth op.sll }
    ensures srl { law.KeepsCommonWidth op.srl }
    ensures sra { law.KeepsCommonWidth op.sra }
{}

/// The reductions and the comparisons make one bit.
pub fn tests_make_one_bit()
    ensures redand { law.MakesOneBit op.redand }
    ensures redor { law.MakesOneBit op.redor }
    ensures redxor { law.MakesOneBit op.redxor }
    ensures eq_bits { law.ComparesToOneBit op.eq_bits }
    ensures ult { law.ComparesToOneBit op.ult }
    ensures ulte { law.ComparesToOneBit op.ulte }
    ensures slt { law.ComparesToOneBit op.slt }
    ensures slte { law.ComparesToOneBit op.slte }
{}

/// The operators that change the width make a bit vector of the width that is due.
pub fn width_is_changed()
    ensures concat { law.Joins }
    ensures slice { law.Slices }
    ensures zext { law.Extends op.zext }
    ensures sext { law.Extends op.sext }
{}

/// A host function makes a bit vector of its output width.
pub fn host_answers_are_bits()
    ensures { law.HostAnswers }
{}

/// `concat` and `slice` undo each other.
pub fn concat_and_slice_undo_each_other()
    ensures slice_of_concat { law.SliceUndoesConcat }
    ensures concat_of_slices { law.ConcatUndoesSlice }
    ensures whole { law.WholeSlice }
{}

/// A slice of an extension gives the operand back, and the signed extension keeps the signed reading.
pub fn extensions_are_undone()
    ensures zext { law.SliceUndoes op.zext }
    ensures sext { law.SliceUndoes op.sext }
    ensures signed { law.SextKeepsSigned }
{}

/// `sub` undoes `add`.
pub fn sub_undoes_add()
    ensures { law.SubUndoesAdd }
{}

/// One bit is a truth value, and the operators on it are those of truth values.
pub fn one_bit_is_a_truth_value()
    ensures flag { law.OneBitIsFlag }
    ensures logic { law.FlagLogic }
{}

/// A reversed number has each bit at the other end, and leading zeros and binary digits make up the width.
pub fn host_answers_by_bits()
    ensures reverse { law.ReverseTurnsBits }
    ensures leading_zeros { law.LeadingZerosAndDigits }
{}

/// Of two arguments: in how many bits they differ, their bits in turn, and their sum as far as it goes.
pub fn host_answers_of_two()
    ensures hamming { law.HammingCountsDifferences }
    ensures morton { law.MortonTakesTurns }
    ensures sat_add { law.SatAddSaturates }
{}
