mod every_run;
mod graphs;
mod spine_offset;
mod sweep_exact;

pub use every_run::law_every_run;
pub use graphs::graph_laws;
pub use spine_offset::law_spine_offset;
pub use sweep_exact::law_sweep_exact;
