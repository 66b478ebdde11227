mod calls;
mod reports;
mod statements;
