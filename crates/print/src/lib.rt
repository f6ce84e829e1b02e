// What the programs print: the plan, the dry run, a speed reading. Each is put into a lent buffer; the answer is how much of it is written.
#![tactic(auto)]

pub mod dry;
pub mod plan;
pub mod reading;

pub use dry::dry_text;
pub use plan::plan_text;
pub use reading::put_reading;
