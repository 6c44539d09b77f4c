// Document 01 as definitions, and what is proved about them: specs/ and proofs/. There is no code here.
#![tactic(auto)]
