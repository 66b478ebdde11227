mod answers;
mod bodies;
mod cuts;
mod requests;
