//! The crates that the store is made of, each whole: for whoever states or proves something of what is inside. The laws of what crashes
//! leave of it stand above it, in `store_files`.
pub use sql_tables as sql;
pub use store_arrivals as arrivals;
pub use store_calls as calls;
pub use store_frames as frames;
pub use store_invocations as invocations;
pub use store_live as live;
pub use store_live_laws as live_laws;
pub use store_live_laws as row_laws;
pub use store_model as lookups;
pub use store_model as model;
pub use store_reads as inputs;
pub use store_refusals as refusals;
pub use store_steps as steps;
pub use store_tables as tables;
