// Document 01's third demand, whole: the verdicts of a record file survive a change of converter. Definitions and theorems alone, no code.

#![tactic(auto)]
