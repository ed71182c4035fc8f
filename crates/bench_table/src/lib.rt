// The marked bench examples of document 01 as one table, proved of the definitions: specs/BenchTable.antt. There is no code here.
#![tactic(auto)]
