// Views of the engine's parts (PipelineInspect, PipelineDynamicInspect), each from the parts that it reads.
#![tactic(auto)]

// The five stages, each with its oldest occupant.
pub mod stages;
// The kinds of unit.
pub mod kinds;
// The units, each a station.
pub mod stations;
// The waits of a cycle.
pub mod waits;
