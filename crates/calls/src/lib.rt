// The operations by their numbers in the list that is replayed. Words of another count than a scale, r or the answer has give 4: the
// number of lengths, and nothing is touched.
#![tactic(auto)]

use field::Element;
use point::equality;
use split_eq::{fold, scalar, value};
use std::error::Error;
use std::fmt;
use table::Refusal;

// By what a call takes beside the slices that it reads.
#[derive(Clone, Copy, Debug, PartialEq, Eq)]
pub enum Operation {
    OnPoints(OnPoints),
    OnSplit(OnSplit),
    OnTable(OnTable),
}

// Nothing but out.
#[derive(Clone, Copy, Debug, PartialEq, Eq)]
pub enum OnPoints {
    EqualityAtVertex,
    EqualityWeightsMsb,
    EqualityWeightsLsb,
    EvalEq,
    EvalNext,
    EvalSelect,
    NewFromPoint,
    NewNextFromPoint,
    EvalEqBatch,
    EvalEqBatchAdd,
    PolyEvalBase,
    PolyEvalExt,
    PolyEvalNextBase,
    NewCyclicFromPoint,
    PolyEvalCyclicBase,
}

// A work buffer.
#[derive(Clone, Copy, Debug, PartialEq, Eq)]
pub enum OnSplit {
    EvalBase,
    EvalExt,
    EvalNextBase,
    LastScalar,
    AccumulateInto,
    CompressPrefix,
    CompressSuffix,
    CompressPrefixShifted,
    CompressSuffixShifted,
    CompressPrefixCyclic,
    CompressSuffixCyclic,
}

// The table that it changes.
#[derive(Clone, Copy, Debug, PartialEq, Eq)]
pub enum OnTable {
    FixPrefixVarMut,
    FixSuffixVarMut,
    FixPrefixVarMutMonomial,
    SumPrefixVarMut,
}

// A number that is no operation's.
#[derive(Clone, Copy, Debug, PartialEq, Eq)]
pub struct UnknownOperation(pub u32);

impl fmt::Display for UnknownOperation {
    fn fmt<W: fmt::Write>(&self, f: &mut fmt::Formatter<W>) -> fmt::Result {
        write!(f, "no operation {}", self.0)
    }
}

impl Error for UnknownOperation {}

impl TryFrom<u32> for Operation {
    type Error = UnknownOperation;

    fn try_from(number: u32) -> Result<Self, UnknownOperation> {
        Ok(match number {
            1 => Operation::OnPoints(OnPoints::EqualityAtVertex),
            2 => Operation::OnPoints(OnPoints::EqualityWeightsMsb),
            3 => Operation::OnPoints(OnPoints::EqualityWeightsLsb),
            4 => Operation::OnPoints(OnPoints::EvalEq),
            5 => Operation::OnPoints(OnPoints::EvalNext),
            6 => Operation::OnPoints(OnPoints::EvalSelect),
            7 => Operation::OnPoints(OnPoints::NewFromPoint),
            8 => Operation::OnPoints(OnPoints::NewNextFromPoint),
            9 => Operation::OnPoints(OnPoints::EvalEqBatch),
            10 => Operation::OnPoints(OnPoints::EvalEqBatchAdd),
            11 => Operation::OnPoints(OnPoints::PolyEvalBase),
            12 => Operation::OnPoints(OnPoints::PolyEvalExt),
            13 => Operation::OnPoints(OnPoints::PolyEvalNextBase),
            14 => Operation::OnSplit(OnSplit::EvalBase),
            15 => Operation::OnSplit(OnSplit::EvalExt),
            16 => Operation::OnSplit(OnSplit::EvalNextBase),
            17 => Operation::OnSplit(OnSplit::LastScalar),
            18 => Operation::OnSplit(OnSplit::AccumulateInto),
            19 => Operation::OnSplit(OnSplit::CompressPrefix),
            20 => Operation::OnSplit(OnSplit::CompressSuffix),
            21 => Operation::OnSplit(OnSplit::CompressPrefixShifted),
            22 => Operation::OnSplit(OnSplit::CompressSuffixShifted),
            23 => Operation::OnTable(OnTable::FixPrefixVarMut),
            24 => Operation::OnTable(OnTable::FixSuffixVarMut),
            25 => Operation::OnTable(OnTable::FixPrefixVarMutMonomial),
            26 => Operation::OnTable(OnTable::SumPrefixVarMut),
            27 => Operation::OnPoints(OnPoints::NewCyclicFromPoint),
            28 => Operation::OnPoints(OnPoints::PolyEvalCyclicBase),
            29 => Operation::OnSplit(OnSplit::CompressPrefixCyclic),
            30 => Operation::OnSplit(OnSplit::CompressSuffixCyclic),
            _ => return Err(UnknownOperation(number)),
        })
    }
}

impl Operation {
    // The words of an answer that is elements or a count; none where out is a table.
    fn words(self) -> Option<usize> {
        match self {
            Operation::OnPoints(operation) => operation.words(),
            Operation::OnSplit(operation) => operation.words(),
            Operation::OnTable(_) => Some(1),
        }
    }
}

impl OnPoints {
    fn words(self) -> Option<usize> {
        match self {
            OnPoints::EqualityAtVertex | OnPoints::EvalEq | OnPoints::EvalSelect => Some(4),
            OnPoints::PolyEvalBase | OnPoints::PolyEvalExt => Some(4),
            OnPoints::PolyEvalNextBase | OnPoints::PolyEvalCyclicBase => Some(4),
            OnPoints::EvalNext => Some(12),
            OnPoints::EqualityWeightsMsb | OnPoints::EqualityWeightsLsb => None,
            OnPoints::NewFromPoint => None,
            OnPoints::NewNextFromPoint | OnPoints::NewCyclicFromPoint => None,
            OnPoints::EvalEqBatch | OnPoints::EvalEqBatchAdd => None,
        }
    }
}

impl OnSplit {
    fn words(self) -> Option<usize> {
        match self {
            OnSplit::EvalBase | OnSplit::EvalExt | OnSplit::EvalNextBase => Some(4),
            OnSplit::LastScalar => Some(4),
            OnSplit::AccumulateInto => None,
            OnSplit::CompressPrefix | OnSplit::CompressSuffix => None,
            OnSplit::CompressPrefixShifted | OnSplit::CompressSuffixShifted => None,
            OnSplit::CompressPrefixCyclic | OnSplit::CompressSuffixCyclic => None,
        }
    }
}

// What a record hands to its operation: slices that are read, in order, and the vertex, var or n.
#[derive(Clone, Copy)]
pub struct Given<'a> {
    pub a: &'a [u32],
    pub b: &'a [u32],
    pub c: &'a [u32],
    pub number: u32,
}

// The answer's number: 0, or the refusal's.
pub fn call(operation: Operation, given: Given, work: &mut [u32], out: &mut [u32]) -> u32 {
    table::answer(called(operation, given, work, out))
}

fn called(
    operation: Operation,
    given: Given,
    work: &mut [u32],
    out: &mut [u32],
) -> Result<(), Refusal> {
    if let Some(words) = operation.words() {
        table::refuse_if(out.len() != words, Refusal::Lengths)?;
    }
    // By kind: each takes arguments of its own.
    match operation {
        Operation::OnPoints(operation) => on_points(operation, given, out),
        Operation::OnSplit(operation) => on_split(operation, given, work, out),
        Operation::OnTable(operation) => {
            let entries = on_table(operation, given, work)?;
            put(out, &[(entries % 4294967296) as u32])
        }
    }
}

// The operations on one or two slices. A match, here and in the next two: each operation takes arguments of its own, so that closures in
// a table are no plainer.
fn on_points(operation: OnPoints, given: Given, out: &mut [u32]) -> Result<(), Refusal> {
    let Given { a, b, number, .. } = given;
    match operation {
        OnPoints::EqualityAtVertex => {
            let value = equality::equality_at_vertex(a, number as usize)?;
            put(out, &value.c)
        }
        OnPoints::EqualityWeightsMsb => equality::equality_weights_msb(a, out),
        OnPoints::EqualityWeightsLsb => equality::equality_weights_lsb(a, out),
        OnPoints::EvalEq => put(out, &next::eval_eq(a, b)?.c),
        OnPoints::EvalNext => put(out, &next::eval_next(a, b)?.words()),
        OnPoints::EvalSelect => put(out, &point::select::eval_select(number, a)?.c),
        OnPoints::NewFromPoint => poly::new_from_point(a, element(b)?, out),
        OnPoints::NewNextFromPoint => poly::new_next_from_point(a, out),
        OnPoints::NewCyclicFromPoint => poly::new_cyclic_from_point(a, out),
        OnPoints::EvalEqBatch => eq_batch::eval_eq_batch(number as usize, a, b, out),
        OnPoints::EvalEqBatchAdd => eq_batch::eval_eq_batch_add(number as usize, a, b, out),
        OnPoints::PolyEvalBase => put(out, &poly::value::eval_base(a, b)?.c),
        OnPoints::PolyEvalExt => put(out, &poly::value::eval_ext(a, b)?.c),
        OnPoints::PolyEvalNextBase => put(out, &poly::value::eval_next_base(a, b)?.c),
        OnPoints::PolyEvalCyclicBase => put(out, &poly::value::eval_cyclic_base(a, b)?.c),
    }
}

// The operations with work.
fn on_split(
    operation: OnSplit,
    given: Given,
    work: &mut [u32],
    out: &mut [u32],
) -> Result<(), Refusal> {
    let Given { a, b, c, .. } = given;
    match operation {
        OnSplit::EvalBase => put(out, &value::eval_base(a, b, element(c)?, work)?.c),
        OnSplit::EvalExt => put(out, &value::eval_ext(a, b, element(c)?, work)?.c),
        OnSplit::EvalNextBase => { put(out, &value::eval_next_base(a, b, element(c)?, work)?.c) }
        OnSplit::LastScalar => put(out, &scalar::last_scalar(a, element(b)?, work)?.c),
        OnSplit::AccumulateInto => {
            scalar::accumulate_into(a, element(b)?, element(c)?, work, out)
        }
        OnSplit::CompressPrefix => fold::compress_prefix(a, b, element(c)?, work, out),
        OnSplit::CompressSuffix => fold::compress_suffix(a, b, element(c)?, work, out),
        OnSplit::CompressPrefixShifted => {
            fold::compress_prefix_shifted(a, b, element(c)?, work, out)
        }
        OnSplit::CompressSuffixShifted => {
            fold::compress_suffix_shifted(a, b, element(c)?, work, out)
        }
        OnSplit::CompressPrefixCyclic => {
            fold::compress_prefix_cyclic(a, b, element(c)?, work, out)
        }
        OnSplit::CompressSuffixCyclic => {
            fold::compress_suffix_cyclic(a, b, element(c)?, work, out)
        }
    }
}

// The operations that change a table: the entries that remain.
fn on_table(operation: OnTable, given: Given, table: &mut [u32]) -> Result<usize, Refusal> {
    match operation {
        OnTable::FixPrefixVarMut => fixing::fix_prefix_var_mut(table, element(given.a)?),
        OnTable::FixSuffixVarMut => fixing::fix_suffix_var_mut(table, element(given.a)?),
        OnTable::FixPrefixVarMutMonomial => {
            fixing::fix_prefix_var_mut_monomial(table, element(given.a)?)
        }
        OnTable::SumPrefixVarMut => fixing::sum_prefix_var_mut(table),
    }
}

// The element of a scale, given scale or r.
fn element(words: &[u32]) -> Result<Element, Refusal> {
    let words = <[u32; 4]>::try_from(words).map_err(|_| Refusal::Lengths)?;
    Ok(Element::from(words))
}

// The words of an answer, where out has as many.
fn put(out: &mut [u32], words: &[u32]) -> Result<(), Refusal> {
    table::refuse_if(out.len() != words.len(), Refusal::Lengths)?;
    out.copy_from_slice(words);
    Ok(())
}
