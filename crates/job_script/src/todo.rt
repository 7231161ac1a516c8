use app_job::Command;

/// What a line of a script that declares nothing asks for. Servers, application servers and jobs go by their
/// indexes.
#[derive(Debug, Drop)]
pub enum Todo {
    Job { job: u16, command: Command },
    /// Frames are delivered by the lines below alone.
    Hold,
    /// Frames are delivered after each line.
    Flow,
    /// The data server's end takes one frame of the pair.
    Up { app: u8, server: u8 },
    /// The application server's end takes one.
    Down { app: u8, server: u8 },
    /// The data server saves what is unsaved.
    Save { server: u8 },
    /// All that is on its way is delivered, and all is saved.
    Pump,
    /// The clock goes up by one so many times.
    Tick { count: u32 },
    /// The pair's connection is cut and the pair is kept apart.
    Break { app: u8, server: u8 },
    Mend { app: u8, server: u8 },
    /// The data server loses its memory, and its disk becomes the image of this pick.
    Crash { server: u8, pick: u64 },
    Restart { server: u8 },
    /// The application server and its jobs are gone for good.
    Die { app: u8 },
    /// The controller waits for the job's earlier lines.
    Await { job: u16 },
}
