// Rows of numbers, as C and Rust read and write them: what stands where, in document 01's numbers, and that what was written comes back. Nothing
// runs here. Read specs/ObsRows.antt and specs/LogRows.antt, then specs/RowsStored.antt (the lent row) and specs/RowsBack.antt (every other message).
#![tactic(auto)]
