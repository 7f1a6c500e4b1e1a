//! Tests alone, of the domains: a module for each over its public calls, and code that is generic over a domain.
#![tactic(auto)]

#[cfg(test)]
mod concrete;
#[cfg(test)]
mod generic;
#[cfg(test)]
mod taint;
