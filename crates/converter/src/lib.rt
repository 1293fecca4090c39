// What a change of converter does to a record file: the converted file, and what of it stays as it was. Definitions and theorems alone, no code.

#![tactic(auto)]
