//! How what is written reads.
ghost use Rattle.law_filters.specs.CleanJoins.{ReadsAsLeft, TextReadsAsLeft};

/// Where the joins are clean, what is written of a set reads as the file patches that are left, with their kept
/// hunks and in their order, line numbers aside. It is read in the ways in which the set was read. The same is told of what
/// `filterdiff` writes by the text alone.
pub fn filter_reads()
    ensures set { ReadsAsLeft }
    ensures told { TextReadsAsLeft }
{}
