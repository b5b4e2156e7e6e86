//! Tests of definitions that laws cite: each accepts one value and refuses another, computed.
#![tactic(auto)]
