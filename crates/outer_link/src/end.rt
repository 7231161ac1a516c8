/// An end of a connection: at its application server or at its data server.
#[derive(Clone, Copy)]
pub enum End {
    App,
    Server,
}
