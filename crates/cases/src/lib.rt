// The specification's starred cases, proved as rows of one table. There is no code here: specs/Cases.antt has the
// table, and proofs/Table.antt proves every row of it.

#![tactic(auto)]
