// Examples of what the layers' public calls do. They have a crate of their own, so that no layer is proved a second time for them.
#![tactic(auto)]

#[cfg(test)]
mod client_examples;
#[cfg(test)]
mod operation_examples;
#[cfg(test)]
mod server_examples;
#[cfg(test)]
mod text_examples;
