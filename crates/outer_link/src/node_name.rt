/// A node: an application server or a data server, by its number.
#[derive(Clone, Copy)]
pub enum NodeName {
    App(u8),
    Server(u8),
}
