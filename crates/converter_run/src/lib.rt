// The change of converter: exact scaling of the inputs by powers of two leaves rank, F and degrees of freedom the same. Definitions and theorems alone, no code.

#![tactic(auto)]
