// What is kept, and how many types were live when it was written.
ghost use Rattle.std.specs.Prelude.{◌≡◌};

#[derive(Clone, Copy)]
pub struct Stamped<T> {
    pub content: T,
    pub types: u16,
}

impl<T> Stamped<T> {
    pub fn new(content: T, types: u16) -> Stamped<T>
        ensures content { result.content ≡ content }
        ensures types { result.types ≡ types }
    {
        Stamped { content, types }
    }
}
