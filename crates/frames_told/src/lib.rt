// What calls of `sbp_next` and `sbp_totals` tell their caller by their numbers and rows. Nothing runs here: theorems over `frame_rows`.
// Read specs/Counting.antt (what is counted), specs/FramesTold.antt (of one call), then specs/RowByRow.antt (of calls one after the other).
#![tactic(auto)]
