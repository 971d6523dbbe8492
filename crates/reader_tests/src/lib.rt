//! Tests of the calls that read and print module texts.
#![tactic(auto)]

#[cfg(test)]
mod expression_parts;
#[cfg(test)]
mod module_texts;
#[cfg(test)]
mod printed_and_read;
#[cfg(test)]
mod printing;
#[cfg(test)]
mod tokens_of_texts;
