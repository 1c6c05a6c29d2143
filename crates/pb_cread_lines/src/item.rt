use pb_ctree::{Guards, Lin, Op, Peer};

/// Which of a label's two arrays is meant.
#[derive(Clone, Copy)]
pub enum Side {
    /// The one that is sent from.
    Outgoing,
    /// The one that is received into.
    Incoming,
}

/// A line of main's statements.
#[derive(Drop)]
pub enum Item {
    /// `}`
    Close,
    /// `} else {`
    ElseOpen,
    /// `if (COND) {`
    IfOpen { guards: Guards },
    /// `} else if (COND) {`
    ElseIfOpen { guards: Guards },
    /// `for (i = LIN; i <= LIN; i++) {`
    ForOpen { low: Lin, high: Lin },
    /// `i = I + 1;`
    OwnIs { off: i32 },
    /// `L0: {`
    LoopOpen { id: u32 },
    /// `goto L0;`
    Goto { id: u32 },
    /// `make_A(N, R, I, is);`
    Makes { label: u32 },
    /// `if (GUARD) make_A(N, R, I, is);`
    RootMakes { root: Peer, label: u32 },
    /// `take_A(N, R, I, ir);`
    Takes { label: u32, side: Side },
    /// `if (GUARD) take_A(N, R, I, ir);`
    RootTakes { root: Peer, label: u32 },
    /// `MPI_Send(is, COUNT, TYPE, PEER, TAG, MPI_COMM_WORLD);`
    Sends { label: u32, to: Peer },
    /// `MPI_Recv(ir, COUNT, TYPE, PEER, TAG, MPI_COMM_WORLD, MPI_STATUS_IGNORE);`
    Receives { label: u32, from: Peer },
    /// `MPI_Barrier(MPI_COMM_WORLD);`
    Barrier,
    /// `MPI_Bcast(is, COUNT, TYPE, PEER, MPI_COMM_WORLD);`
    Broadcasts { label: u32, root: Peer },
    /// `MPI_Reduce(is, ir, COUNT, TYPE, OP, PEER, MPI_COMM_WORLD);`
    Reduces { label: u32, op: Op, root: Peer },
    /// `MPI_Allreduce(is, ir, COUNT, TYPE, OP, MPI_COMM_WORLD);`
    Allreduces { label: u32, op: Op },
    /// `k_K(N, R, I);`
    Calls { kernel: u32 },
    /// `a = c_K(N, R, I);`
    Chooses { kernel: u32 },
    /// `MPI_Probe(PEER, MPI_ANY_TAG, MPI_COMM_WORLD, &st);`
    Probe { from: Peer },
    /// `if (st.MPI_TAG == TAG && (COND)) {`
    TestOpen { label: u32, guards: Guards },
    /// `} else if (st.MPI_TAG == TAG && (COND)) {`
    ElseTestOpen { label: u32, guards: Guards },
    /// `a = 0;`
    Picks { branch: u32 },
    /// `MPI_Abort(MPI_COMM_WORLD, 3);`
    Aborts,
    /// `if (a == 0) {`
    PickOpen { branch: u32 },
    /// `} else if (a == 1) {`
    ElsePickOpen { branch: u32 },
}
