// A walk or a circuit as the numbers of its edges.
ghost use Rattle.std.specs.Prelude.{◌≡◌, ◌+◌, ◌<◌, ◌≤◌, [], ◌∷◌, ◌++◌, length};
ghost use Rattle.bounds.specs.Paths.{numbers};

use few::Few;

// At most 32 numbers of edges, in order.
#[derive(Clone, Copy)]
pub struct Path {
    edges: Few<usize, 32>,
}

impl Path {
    // No edge.
    pub(crate) fn new() -> Path
        ensures { numbers result ≡ [] }
    {
        Path { edges: Few::new(0) }
    }

    // The numbers of the edges, from 0.
    pub fn numbers(&self) -> &[usize]
        ensures { result.now ≡ numbers self.now }
    {
        self.edges.as_slice()
    }

    // One more edge.
    pub(crate) fn push(&mut self, number: usize)
        requires { length (numbers self.old) < 32 }
        ensures { numbers self.new ≡ numbers self.old ++ number ∷ [] }
    {
        self.edges.push(number).unwrap();
    }

    // More edges, in their order.
    pub(crate) fn extend(&mut self, more: &[usize])
        requires { length (numbers self.old) + length more.now ≤ 32 }
        ensures { numbers self.new ≡ numbers self.old ++ more.now }
    {
        for number in more {
            self.push(*number);
        }
    }
}
