// No code: the theorems about the layout of the ICM tables and its mapped ranges.
#![tactic(auto)]
