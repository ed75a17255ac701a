// A choice by a test, for definitions and proofs: specs/Choice.antt and its laws. There is no code here.

#![tactic(auto)]
