// The engine by its parts: what it means to the model, what holds of every engine, what a call says of one (specs), and what a start answers. The struct
// with the calls as its methods stands in crates/scoreboard; the work behind them, over parts, in crates/offering, advancing and fetching.
#![tactic(auto)]

use capability::PipelineInstructionClass;

// What start hands to the driver.
#[derive(Clone, Copy)]
pub struct OfferView {
    pub seq: u64,
    pub address: u64,
    pub length: u64,
    pub class: PipelineInstructionClass,
    pub branch: bool,
    pub atomic: bool,
    pub predicted_next: u64,
    pub payload: u64,
}
