// Calls, and what comes of them.
use engine_writes::waiting::Waiting;
use model::Parts;
use schedule::Scheduled;
use standing::PackFault;

// What a run is lent.
#[derive(Drop)]
pub struct Buffers<V> {
    pub memory: Vec<V>,
    pub values: Vec<V>,
    pub waiting: Vec<Waiting<V>>,
}

#[derive(Drop)]
pub enum Call<V> {
    Machine(Vec<u8>),
    Loop(Vec<u8>),
    Plan,
    Expand(usize),
    Run(Buffers<V>),
}

// What a call answers.
#[derive(Clone, Copy)]
pub enum Outcome {
    Accepted,
    Planned(Scheduled),
    Expanded(Parts),
    Ran(usize),
    Refused(PackFault),
}

// A place for a call, and then for the call with its buffers as it left them and what came of it.
#[derive(Drop)]
pub enum Entry<V> {
    Asked(Call<V>),
    Answered(Call<V>, Outcome),
}
